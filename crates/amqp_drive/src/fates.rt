//! What became of messages, by their numbers.

use std::alloc::{AllocError, Global};

/// What a broker said of a message.
#[derive(Clone, Copy, Debug, PartialEq, Eq)]
pub enum Fate {
    /// Nothing yet.
    Open,
    /// It took it.
    Taken,
    /// It refused it.
    Refused,
}

/// What a broker said of messages that were published one after another.
#[derive(Drop)]
pub struct Fates {
    alloc: Global,
    // the number of the first
    first: u64,
    fates: Vec<Fate>,
    open: usize,
    // all before this place have their answer
    answered: usize,
}

impl Fates {
    /// No message yet; the first has this number.
    pub fn new(alloc: Global, first: u64) -> Fates {
        Fates {
            alloc,
            first,
            fates: Vec::new(alloc),
            open: 0,
            answered: 0,
        }
    }

    /// One message more was published.
    pub fn push(&mut self) -> Result<(), AllocError> {
        self.fates.push(Fate::Open)?;
        self.open = self.open.saturating_add(1);
        Ok(())
    }

    /// The broker said this of a message by its tag, counted from 1, or of all up to it.
    pub fn answer(&mut self, tag: u64, multiple: bool, fate: Fate) {
        let Some(place) = tag.checked_sub(1) else {
            return;
        };
        let place = place as usize;
        let from = if multiple { self.answered } else { place };
        for at in from..place.saturating_add(1) {
            self.answer_one(at, fate);
        }
        if multiple {
            self.answered = self.answered.max(place.saturating_add(1));
        }
    }

    fn answer_one(&mut self, at: usize, fate: Fate) {
        if let Some(known) = self.fates.get_mut(at)
            && *known == Fate::Open
        {
            *known = fate;
            self.open = self.open.saturating_sub(1);
        }
    }

    /// Of how many nothing was said.
    pub fn open(&self) -> usize {
        self.open
    }

    /// The numbers of those with this fate, as runs.
    pub fn numbers(&self, fate: Fate) -> Result<String, AllocError> {
        let mut numbers = Vec::new(self.alloc);
        let mut number = self.first;
        for known in &self.fates {
            if *known == fate {
                numbers.push(number)?;
            }
            number = number.saturating_add(1);
        }
        runs_of(self.alloc, &numbers)
    }
}

// One run more.
fn push_run(alloc: Global, text: &mut String, first: u64, last: u64) -> Result<(), AllocError> {
    if !text.is_empty() {
        text.push_str(" ")?;
    }
    let run = if first == last {
        format!(in alloc; "{first}")?
    } else {
        format!(in alloc; "{first}-{last}")?
    };
    text.push_str(run.as_str())
}

/// Numbers in ascending order as runs, as `1-5 7`; `none` where there are none.
pub fn runs_of(alloc: Global, numbers: &[u64]) -> Result<String, AllocError> {
    let mut text = String::new(alloc);
    let mut run = None;
    for number in numbers {
        run = match run {
            None => Some((*number, *number)),
            Some((first, last)) if *number == last => Some((first, last)),
            Some((first, last)) if last.checked_add(1) == Some(*number) => Some((first, *number)),
            Some((first, last)) => {
                push_run(alloc, &mut text, first, last)?;
                Some((*number, *number))
            }
        };
    }
    match run {
        Some((first, last)) => push_run(alloc, &mut text, first, last)?,
        None => text.push_str("none")?,
    }
    Ok(text)
}
