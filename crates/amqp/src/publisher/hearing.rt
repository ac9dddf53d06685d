//! What who publishes hears of the broker.

use super::Publisher;
use amqp_client::Stop;
use amqp_frame::RawKind;
use amqp_methods::read_return;
use amqp_session::{ErrorKind, Handed};
use amqp_tools::{Heard, size_in, told_by};
use std::io::Write;

impl<F: Write + Drop> Publisher<'_, F> {
    // Hears what the broker tells by frames.
    pub(crate) fn hear(&mut self, frames: Vec<Handed>) -> Result<(), Stop> {
        for frame in frames {
            let heard = self.hear_one(&frame);
            drop(frame);
            heard?;
        }
        Ok(())
    }

    // Hears a frame.
    fn hear_one(&mut self, frame: &Handed) -> Result<(), Stop> {
        let payload = frame.bytes.as_bytes();
        match frame.kind {
            RawKind::RawMethod => self.told(told_by(payload), payload),
            RawKind::Header => {
                self.missing = size_in(payload);
                self.given_back();
                Ok(())
            }
            RawKind::Body => self.part(payload),
        }
    }

    // Whether a part of a body that is given back is kept, by which it is told from others: no more than one may have,
    // and where it is told which came back, or put in again what has no answer.
    fn is_kept(&self, payload: &[u8]) -> bool {
        let size = self.body.len().saturating_add(payload.len());
        let is_wanted = self.report.is_wanted() || self.target.recovers;
        self.returning.is_some() && is_wanted && size <= self.target.most
    }

    // A part of a body that is given back.
    fn part(&mut self, payload: &[u8]) -> Result<(), Stop> {
        if self.is_kept(payload) {
            match self.body.extend_from_slice(payload) {
                Ok(()) => {}
                Err(_) => return Err(Stop::Failed(ErrorKind::NoMemory.into())),
            }
        }
        self.missing = self.missing.saturating_sub(payload.len() as u64);
        self.given_back();
        Ok(())
    }

    // A message is given back, once it is whole.
    fn given_back(&mut self) {
        if self.missing == 0
            && let Some(code) = self.returning.take()
        {
            self.confirms.give_back(code, &self.body);
        }
    }

    // How many that had no answer this one means. Where it means any, the broker was not waited for in vain.
    fn answered(&mut self, tag: u64, multiple: bool) -> u64 {
        let count = self.confirms.answered(tag, multiple) as u64;
        if count > 0 {
            self.waited = 0;
        }
        count
    }

    // Counts what the broker told.
    fn told(&mut self, heard: Heard, payload: &[u8]) -> Result<(), Stop> {
        match heard {
            Heard::Taken(tag, multiple) => {
                self.report_each(tag, multiple, "confirmed")?;
                let count = self.answered(tag, multiple);
                self.counts.confirmed = self.counts.confirmed.saturating_add(count);
            }
            Heard::Refused(tag, multiple) => {
                self.report_each(tag, multiple, "refused")?;
                let count = self.answered(tag, multiple);
                self.counts.refused = self.counts.refused.saturating_add(count);
            }
            Heard::Returned => {
                self.counts.returned = self.counts.returned.saturating_add(1);
                self.returning = read_return(payload).map(|returned| returned.reply_code);
                self.missing = u64::MAX;
                self.body.clear();
            }
            Heard::Selected | Heard::Cancelled | Heard::Other => {}
        }
        Ok(())
    }

    // Reports what became of those that an answer means.
    fn report_each(&mut self, tag: u64, multiple: bool, what: &str) -> Result<(), Stop> {
        if !self.report.is_wanted() {
            return Ok(());
        }
        for open in self.confirms.open() {
            if open.is_meant(tag, multiple) {
                self.report.say(open.message, what, open.returned)?;
            }
        }
        Ok(())
    }
}
