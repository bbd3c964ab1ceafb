// Ten worked cases of the rules.
#![tactic(auto)]

ghost use Rattle.std.specs.Prelude.{◌≡◌};
ghost use Rattle.bench.specs.Cases.{WorkedCases};

// How many cases there are; the function does nothing, and its contract holds their theorems.
pub fn worked_cases_hold() -> u32
    ensures cases { WorkedCases }
    ensures count { result ≡ 10 }
{
    10
}
