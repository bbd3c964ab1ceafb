// The record: lines for people or for comparing.
use crate::failure::Failure;
use answers::{Fault, Refusal};
use deck::Style;
use image::Image;
use printing::call::{Call, Done};
use printing::image::{ConsoleImage, PlainImage};
use printing::lead::{ConsoleLead, PlainLead, Spot};
use printing::octal::OctalAddress;
use printing::refused::{ConsoleFault, ConsoleRefused, PlainRefused};
use printing::word::{ConsoleWord, PlainWord};
use session::Misplaced;
use std::alloc::Global;
use std::fmt::Display;
use std::io;

#[derive(Drop)]
pub(crate) struct Printout<'a> {
    rt: &'a HostRuntime,
    pub(crate) style: Style,
}

impl<'a> Printout<'a> {
    pub(crate) fn new(rt: &'a HostRuntime) -> Printout<'a> {
        Printout {
            rt,
            style: Style::Console,
        }
    }

    pub(crate) fn heap(&self) -> Global {
        self.rt.alloc()
    }

    // What is wrong with a line of the deck.
    pub(crate) fn line<D: Display + Drop>(&self, number: u64, problem: D) -> io::Result<()> {
        println!(self.rt; "line {number}: {problem}")
    }

    pub(crate) fn image(&self, answer: Result<Image<'_>, Refusal>) -> io::Result<()> {
        let Image {
            keys,
            length,
            words,
        } = match answer {
            Ok(image) => image,
            Err(refusal) => return self.refused(Call::Image, refusal),
        };
        match self.style {
            Style::Console => {
                let words = words.len() / 3;
                println!(self.rt;
                    "{}",
                    ConsoleImage {
                        keys,
                        length,
                        words
                    }
                )
            }
            Style::Plain => println!(self.rt;
                "{}",
                PlainImage {
                    keys,
                    length,
                    words
                }
            ),
        }
    }

    pub(crate) fn refused(&self, call: Call, refusal: Refusal) -> io::Result<()> {
        match self.style {
            Style::Console => println!(self.rt; "{}", ConsoleRefused { call, refusal }),
            Style::Plain => println!(self.rt; "{}", PlainRefused { call, refusal }),
        }
    }

    // A call that answers nothing but that it was accepted.
    pub(crate) fn done(&self, call: Call, answer: Result<(), Refusal>) -> io::Result<()> {
        match answer {
            Ok(()) => println!(self.rt; "{}", Done(call)),
            Err(refusal) => self.refused(call, refusal),
        }
    }

    pub(crate) fn read(&self, address: u32, answer: Result<u32, Fault>) -> io::Result<()> {
        match answer {
            Ok(word) => self.word(address, word),
            Err(fault) => self.refused(Call::Read, Refusal::Core(fault)),
        }
    }

    // Words from an address on, as far as the first fault; `read` has none where nothing is built.
    pub(crate) fn list<F: FnMut(u32) -> Option<Result<u32, Fault>>>(
        &self,
        address: u32,
        count: u32,
        mut read: F,
    ) -> Result<(), Failure>
        requires { F.IsAlwaysCallable read }
    {
        for at in (address..=u32::MAX).take(count as usize) {
            match read(at).ok_or(Misplaced::NoCore)? {
                Ok(word) => self.word(at, word)?,
                Err(fault) => return Ok(self.row_fault(at, fault)?),
            }
        }
        Ok(())
    }

    fn word(&self, address: u32, word: u32) -> io::Result<()> {
        match self.style {
            Style::Console => println!(self.rt; "{}", ConsoleWord { address, word }),
            Style::Plain => println!(self.rt; "{}", PlainWord(word)),
        }
    }

    // The end of a listing at an address that faults.
    fn row_fault(&self, address: u32, fault: Fault) -> io::Result<()> {
        match self.style {
            Style::Console => println!(self.rt;
                "{}  {}",
                OctalAddress(address),
                ConsoleFault(fault)
            ),
            Style::Plain => self.refused(Call::Read, Refusal::Core(fault)),
        }
    }

    // Where an address leads for reading, and for writing.
    pub(crate) fn leads(
        &self,
        reading: Result<Spot, Fault>,
        writing: Result<Spot, Fault>,
    ) -> io::Result<()> {
        match self.style {
            Style::Console => {
                println!(self.rt; "reading: {}", ConsoleLead(reading))?;
                println!(self.rt; "writing: {}", ConsoleLead(writing))
            }
            Style::Plain => println!(self.rt;
                "where ok{}{}",
                PlainLead(reading),
                PlainLead(writing)
            ),
        }
    }
}
