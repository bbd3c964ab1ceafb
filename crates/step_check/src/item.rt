use crate::problem::Problem;
use ones::Ones;
use std::alloc::Global;

// An item of a line: its name, and the numbers behind it.
#[derive(Drop)]
pub(crate) struct Item<'a> {
    pub(crate) name: &'a str,
    pub(crate) numbers: Vec<u32>,
}

impl<'a> Item<'a> {
    pub(crate) fn read(heap: Global, text: &'a str) -> Result<Item<'a>, Problem> {
        let mut words = text.split_whitespace();
        let Some(name) = words.next() else {
            return Err(Problem::Item);
        };
        Ok(Item {
            name,
            numbers: words.map(octal).try_collect(heap)?,
        })
    }
}

fn octal(text: &str) -> Result<u32, Problem> {
    u32::from_str_radix(text, 8).map_err(|_| Problem::Number)
}

// A word or an address.
pub(crate) fn number<const W: u32>(n: u32) -> Result<Ones<W>, Problem> {
    Ones::new(u64::from(n)).ok_or(Problem::Large)
}

pub(crate) fn flag(n: u32) -> Result<bool, Problem> {
    match n {
        0 => Ok(false),
        1 => Ok(true),
        _ => Err(Problem::Large),
    }
}
