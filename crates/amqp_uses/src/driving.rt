//! A session that is driven by hand. The first function is the one to read.

ghost use Rattle.std.specs.Prelude.{◌≡◌, ◌++◌, ℕ, List, Some, Ok, IfErr, IfOk, IfSome, OnOk, OnErr, filter, length};
ghost use Rattle.amqp_rules.specs.Changes.{present_at, starve};
ghost use Rattle.amqp_rules.specs.Writing.{next_frame};
ghost use Rattle.amqp_rules.specs.ChannelMethods.{frames_of};
ghost use Rattle.amqp_rules.specs.Answers.{answer_of, take_frames};
ghost use Rattle.amqp_auth.specs.DefaultAnswers.{default_answer, AnswersEach};
ghost use Rattle.amqp_rules.specs.Asking.{Hears};
ghost use Rattle.amqp_uses.specs.Driving.{space_in, next_octets, stands_in, heard, asked_of, read_of, is_body};

use amqp_frame::{RawKind, RawMethod, Read, Room, read_frame, write_frame};
use amqp_session::{
    Answer, AuthList, ChanRef, Cmd, ConnectionProperties, DefaultAuthProvider, ErrorKind, Misread,
    Result, Session,
};
use amqp_uri::AMQPUri;
use std::alloc::Global;

/// A session, with who authenticates its client and what was answered so far.
#[derive(Drop)]
pub struct Client {
    pub session: Session,
    pub provider: DefaultAuthProvider,
    pub auths: AuthList,
}

/// Where octets stand among all that came on a link, and when they came, in milliseconds.
#[derive(Clone, Copy)]
pub struct Came {
    pub place: u64,
    pub at: u64,
}

/// Opens a channel over a session that is driven by hand, and sends a method on it. What the session
/// says is put into a room; `reply` is the server's answer to the opening. Gives the promise that is
/// answered once the method's last octet was taken, or nothing where the channel did not open.
pub fn open_and_send<R: Room>(
    alloc: Global,
    client: &mut Client,
    room: &mut R,
    reply: &[u8],
    came: Came,
    method: RawMethod,
) -> Result<Option<u64>>
    ensures { (more : List ℕ) × (R.put_so_far room.new ≡ R.put_so_far room.old ++ more) }
{
    client.session.advance(came.at);
    let opening = client.session.command(Cmd::OpenChannel)?;
    say_next(&mut client.session, room);
    hear_next(alloc, client, reply, came)?;
    let Some(channel) = opened(&mut client.session, opening.unwrap_or(0)) else {
        return Ok(None);
    };
    let sending = client.session.command(Cmd::Send(channel, method))?;
    say_next(&mut client.session, room);
    Ok(sending)
}

// ---- its parts

/// A new session with the server of an address, as the user of the address.
pub fn new_client(alloc: Global, uri: &AMQPUri, options: ConnectionProperties) -> Result<Client> {
    let session = Session::new(alloc, uri, options)?;
    let provider = DefaultAuthProvider::new(alloc, uri)?;
    Ok(Client {
        session,
        provider,
        auths: AuthList::new(alloc),
    })
}

/// Commits the next frame that fits and puts its octets into a room. Without one nothing changes, but that a next
/// frame which is longer than the whole capacity ends the session.
pub fn say_next<R: Room>(session: &mut Session, room: &mut R)
    ensures said { R.put_so_far room.new ≡ R.put_so_far room.old ++ next_octets (R.free room.old) session.old }
    ensures session { session.new ≡ next_frame (space_in (R.free room.old) session.old) session.old }
{
    let space = (room.space() as u64).min(session.capacity() - session.unsent());
    if let Some(frame) = session.next_frame(space) {
        // There is space for it.
        let _ = write_frame(&frame, room);
        drop(frame);
    }
}

/// Tells a session what stands at the front of its unread octets. What that asks is answered by the
/// provider. Gives how many octets were read, 0 where more have to come first, and where no frame stood
/// there.
pub fn hear_next(alloc: Global, client: &mut Client, unread: &[u8], came: Came) -> Result<usize>
    ensures ok { let read = stands_in unread.now client.old.session in
        OnOk result (Hears (heard read came.place came.at) (λ _. asked_of read came.at)
        (AnswersEach (default_answer client.old.provider.mechanism client.old.provider.login))
        (AnswersEach (default_answer client.new.provider.mechanism client.new.provider.login))
        client.old.session client.new.session client.old.auths.list client.new.auths.list) }
    ensures read { IfOk result (λ n. n ≡ read_of (stands_in unread.now client.old.session)) }
    ensures err { OnErr result (client.new.session ≡ starve (present_at came.at client.old.session)) }
    ensures only { IfErr result (λ e. e ≡ ErrorKind.NoMemory) }
{
    let Came { place, at } = came;
    let Client {
        session,
        provider,
        auths,
    } = client;
    match read_frame(alloc, &unread, session.frame_limit() as u32) {
        Read::Whole(frame, n) => {
            session.frame(frame, at, provider, auths)?;
            return Ok(n);
        }
        Read::More => {}
        Read::TooLarge(size) => session.misread(Misread::TooLarge(size), at)?,
        Read::BadHeartbeat(channel) => session.misread(Misread::BadHeartbeat(channel), at)?,
        Read::Bad => session.misread(Misread::Bad(place), at)?,
        Read::NoMemory => {
            session.starve(at);
            return Err(ErrorKind::NoMemory.into());
        }
    }
    Ok(0)
}

/// Takes the answer to an opening, and names the channel that it opened. Where it was refused, or is
/// not answered, there is none.
pub fn opened(session: &mut Session, opening: u64) -> Option<ChanRef>
    ensures { IfSome result (λ channel. (promise : ℕ) × (channel.opened ≡ Some promise)
        × (answer_of opening session.old ≡ Some (Ok (Answer.Channel channel.id promise)))) }
{
    let answer = session.answer(opening);
    let channel = match &answer {
        Some(Ok(Answer::Channel(id, opened))) => Some(ChanRef {
            id: *id,
            opened: Some(*opened),
        }),
        _ => None,
    };
    drop(answer);
    channel
}

/// How many bodies came on a channel since it was last asked. The frames are taken.
pub fn bodies_received(session: &mut Session, opened: u64) -> Result<usize>
    ensures taken { session.new ≡ take_frames opened session.old }
    ensures bodies { IfOk result (λ n. n ≡ length (filter is_body (frames_of opened session.old))) }
{
    let frames = session.take_frames(opened)?;
    Ok(
        frames
            .iter()
            .filter(|frame| frame.kind == RawKind::Body)
            .count(),
    )
}
