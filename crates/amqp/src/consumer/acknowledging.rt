//! How who consumes acknowledges, and comes to know that the broker has read that.

use super::{Consumer, MOST_UNACKNOWLEDGED, tag, untaken};
use amqp_client::{Client, LIMIT, Stop};
use amqp_methods::{BasicAckOptions, BasicQosOptions, basic_ack, basic_cancel, basic_qos};
use amqp_tools::Sink;
use lapin_connection::Pending;
use std::sync::Wait;
use std::time::{Clock, Duration};

impl Consumer<'_> {
    // Acknowledges what was printed, once it is written. The broker is told before how few may come after it.
    pub(crate) fn acknowledge<R: Wait, S: Sink>(
        &mut self,
        rt: &R,
        out: &mut S,
    ) -> Result<(), Stop> {
        self.hear_answer(rt)?;
        let tag = match self.taking.acknowledge(out) {
            Ok(Some(tag)) => tag,
            Ok(None) => return Ok(()),
            Err(why) => return Err(untaken(why)),
        };
        self.bound(rt)?;
        let method = basic_ack(self.alloc, tag, BasicAckOptions { multiple: true })?;
        self.client.send(rt, method)?;
        self.ask_for_answer(rt)
    }

    // Tells the broker how few may be delivered and not acknowledged from now on, or that none is to come.
    fn bound<R: Wait>(&mut self, rt: &R) -> Result<(), Stop> {
        let may_come = self.may_come();
        if may_come >= self.ahead {
            return Ok(());
        }
        self.ahead = may_come;
        let method = if may_come == 0 {
            basic_cancel(self.alloc, &tag(self.alloc)?, false)?
        } else {
            basic_qos(
                self.alloc,
                may_come.min(MOST_UNACKNOWLEDGED) as u16,
                BasicQosOptions { global: true },
            )?
        };
        self.client.send(rt, method)
    }

    // Asks the broker for what was acknowledged: whatever it answers, it has read that before. Where no number is
    // wanted, what was sent counts.
    fn ask_for_answer<R: Wait>(&mut self, rt: &R) -> Result<(), Stop> {
        if self.wanted.count.is_none() {
            self.taking.ask();
            return Ok(self.taking.answered()?);
        }
        if self.asked.is_some() || !self.taking.wants_to_ask() {
            return Ok(());
        }
        let Client { channel, pass, .. } = &mut self.client;
        match channel.channel_flow(rt, pass, true) {
            Ok(asked) => {
                self.taking.ask();
                self.asked = Some(asked);
                Ok(())
            }
            Err(error) if error.can_be_recovered() => {
                drop(error);
                Ok(())
            }
            Err(error) => Err(Stop::Failed(error)),
        }
    }

    // Hears the answer, where it is there.
    pub(crate) fn hear_answer<R: Wait>(&mut self, rt: &R) -> Result<(), Stop> {
        let answer = match &self.asked {
            Some(asked) => asked.try_wait(rt),
            None => None,
        };
        match answer {
            Some(Ok(_active)) => {
                self.asked = None;
                Ok(self.taking.answered()?)
            }
            Some(Err(error)) => {
                drop(error);
                self.asked = None;
                Ok(())
            }
            None => Ok(()),
        }
    }

    // Once all that are wanted were printed and acknowledged, waits until the broker has read that.
    pub(crate) fn finish<R: Wait + Clock>(&mut self, rt: &R) -> Result<(), Stop> {
        for _ in rt.forever() {
            if self.taking.is_done() || self.taking.unsent() != Some(0) {
                return Ok(());
            }
            self.ask_for_answer(rt)?;
            let Some(asked) = self.asked.take() else {
                return Ok(());
            };
            let is_answered = is_answered(rt, &asked);
            drop(asked);
            if !is_answered? {
                return Ok(());
            }
            self.taking.answered()?;
        }
        unreachable!()
    }
}

// Waits until this is answered, and says whether it is: not where the link is gone, which is told otherwise.
fn is_answered<R: Wait + Clock>(rt: &R, asked: &Pending<bool>) -> Result<bool, Stop> {
    let Some(answer) = asked.wait_for(rt, Duration::from_secs(LIMIT)) else {
        return Err(Stop::Silent("answer for what was acknowledged", LIMIT));
    };
    match answer {
        Ok(_active) => Ok(true),
        Err(error) if error.can_be_recovered() => {
            drop(error);
            Ok(false)
        }
        Err(error) => Err(Stop::Failed(error)),
    }
}
