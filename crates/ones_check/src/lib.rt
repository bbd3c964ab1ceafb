// Worked examples of one's complement numbers, in octal.
#![tactic(auto)]

#[cfg(test)]
mod tests;
