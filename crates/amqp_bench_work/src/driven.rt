//! A session that is driven call by call.

use amqp_frame::{Frame, Method, encoded_len};
use amqp_session::{Answer, AuthList, ConnectionProperties, DefaultAuthProvider, Result, Session};
use amqp_types::{FieldTable, LongString};
use amqp_uri::AMQPUri;
use std::alloc::Global;

/// A session with the broker of this machine, and who answers what it asks.
#[derive(Drop)]
pub struct Driven {
    pub session: Session,
    provider: DefaultAuthProvider,
    auths: AuthList,
}

impl Driven {
    /// A session that is new; nothing where memory was refused.
    pub fn new(alloc: Global) -> Option<Driven> {
        let Ok(uri) = AMQPUri::local(alloc) else {
            return None;
        };
        let made = Driven::of(alloc, &uri);
        drop(uri);
        made.ok()
    }

    fn of(alloc: Global, uri: &AMQPUri) -> Result<Driven> {
        let provider = DefaultAuthProvider::new(alloc, uri)?;
        let session = new_session(alloc, uri);
        match session {
            Ok(session) => Ok(Driven {
                session,
                provider,
                auths: AuthList::new(alloc),
            }),
            Err(error) => {
                drop(provider);
                Err(error)
            }
        }
    }

    /// A frame was read.
    pub fn frame(&mut self, frame: Frame) -> Result<()> {
        self.session
            .frame(frame, 0, &mut self.provider, &mut self.auths)
    }
}

fn new_session(alloc: Global, uri: &AMQPUri) -> Result<Session> {
    Session::new(alloc, uri, ConnectionProperties::new(alloc)?)
}

/// Takes all frames that can be written, and tells the session that their last octet was taken.
pub fn send_all(session: &mut Session) {
    for _ in 0..u64::MAX {
        let space = session.capacity().saturating_sub(session.unsent());
        match session.next_frame(space) {
            Some(frame) => {
                let length = encoded_len(&frame);
                drop(frame);
                session.taken(length.min(session.unsent()), 0);
            }
            None => return,
        }
    }
}

// Start, of a server without properties.
fn start(alloc: Global) -> Frame {
    let mechanisms = LongString::from_vec(Vec::new(alloc));
    let locales = LongString::from_vec(Vec::new(alloc));
    Frame::Method(
        0,
        Method::Start(0, 9, FieldTable::new(alloc), mechanisms, locales),
    )
}

/// Opens the connection.
pub fn connect(alloc: Global, driven: &mut Driven) -> Result<()> {
    driven.session.asked();
    driven.session.linked(0)?;
    driven.frame(start(alloc))?;
    driven.frame(Frame::Method(0, Method::Tune(2047, 131_072, 60)))?;
    driven.frame(Frame::Method(0, Method::OpenOk))?;
    send_all(&mut driven.session);
    Ok(())
}

/// Whether this is the answer that all was sent. It takes the answer.
pub fn is_sent(answer: Option<Result<Answer>>) -> bool {
    let sent = matches!(answer, Some(Ok(Answer::Sent)));
    drop(answer);
    sent
}
