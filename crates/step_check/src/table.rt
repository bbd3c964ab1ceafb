// A table of cases, line by line.
use crate::case::Case;
use crate::difference::Differences;
use crate::problem::Problem;
use std::io;

#[derive(Drop)]
pub(crate) struct Table<'a> {
    rt: &'a HostRuntime,
    case: Option<Case>,
    counts: Counts,
}

#[derive(Clone, Copy)]
struct Counts {
    cases: u64,
    passed: u64,
    bad_lines: u64,
}

impl<'a> Table<'a> {
    pub(crate) fn new(rt: &'a HostRuntime) -> Table<'a> {
        Table {
            rt,
            case: None,
            counts: Counts {
                cases: 0,
                passed: 0,
                bad_lines: 0,
            },
        }
    }

    // Takes the next line; one that begins a case has the case before it carried out.
    pub(crate) fn read_line(&mut self, number: u64, line: &str) -> io::Result<()> {
        let text = without_comment(line).trim();
        if text.is_empty() {
            return Ok(());
        }
        match text.strip_prefix("case ") {
            Some(name) => self.begin_case(name),
            None => self.continue_case(number, text),
        }
    }

    fn begin_case(&mut self, name: &str) -> io::Result<()> {
        self.finish_case()?;
        self.case = Some(Case::new(self.rt.alloc(), name)?);
        Ok(())
    }

    fn continue_case(&mut self, number: u64, text: &str) -> io::Result<()> {
        let read = match &mut self.case {
            Some(case) => case.read_line(self.rt.alloc(), text),
            None => Err(Problem::NoCase),
        };
        match read {
            Ok(()) => Ok(()),
            Err(problem) => {
                self.counts.bad_lines = self.counts.bad_lines.saturating_add(1);
                println!(self.rt; "line {number}: {problem}")
            }
        }
    }

    fn finish_case(&mut self) -> io::Result<()> {
        if let Some(mut case) = self.case.take() {
            self.counts.cases = self.counts.cases.saturating_add(1);
            if self.passes(&mut case)? {
                self.counts.passed = self.counts.passed.saturating_add(1);
            }
        }
        Ok(())
    }

    // Carries out a case and prints how it went; true where all is as the table says, a bool since the caller only counts.
    fn passes(&self, case: &mut Case) -> io::Result<bool> {
        let judged = case.judge(self.rt.alloc());
        let name = case.name.as_str();
        match judged {
            Ok(differences) => {
                self.print_differences(name, &differences)?;
                Ok(differences.all.is_empty())
            }
            Err(problem) => {
                println!(self.rt; "{name}: {problem}")?;
                Ok(false)
            }
        }
    }

    fn print_differences(&self, name: &str, differences: &Differences) -> io::Result<()> {
        for difference in differences.all.iter() {
            println!(self.rt; "{name}: {difference}")?;
        }
        if differences.all.is_empty() {
            println!(self.rt; "{name}: ok")?;
        }
        Ok(())
    }

    // Carries out the last case, and prints the counts.
    pub(crate) fn close(mut self) -> io::Result<()> {
        self.finish_case()?;
        let Counts {
            cases,
            passed,
            bad_lines,
        } = self.counts;
        println!(self.rt; "{cases} cases, {passed} ok, {bad_lines} bad lines")
    }
}

fn without_comment(line: &str) -> &str {
    match line.split_once('#') {
        Some((text, _)) => text,
        None => line,
    }
}
