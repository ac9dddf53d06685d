//! Clients of sockets, and a listener for them on a thread of its own.

ghost use Rattle.std.specs.Prelude.{◌≡◌, ◌⊎◌, ◌≤◌, true, IfOk, Err};
ghost use Rattle.amqp_double.specs.Doubles.{AnswersClient, fresh};
ghost use Rattle.amqp_double.specs.Faults.{result_of};
ghost use Rattle.amqp_double.specs.declared.refusal.DoubleFault.{DoubleFault};
ghost use Rattle.amqp_double_socket.specs.Serving.{HasSentAll};

use crate::counted::Counted;
use crate::serving::{Ended, serve};
use amqp_double::Double;
use amqp_settings::Configuration;
use amqp_types::NoMemory;
use std::alloc::Global;
use std::io::{Read, Write};
use std::net::{Net, OpenListener, OpenStream, SocketAddr, TcpListener, TcpStream};
use std::thread::{JoinHandle, Threads};
use std::{io, thread};

/// A client that was served: how that ended, and the double that served it.
#[derive(Drop)]
pub struct Served {
    pub ended: Ended,
    pub double: Double,
}

/// A listener that serves clients one after another, on a thread of its own.
#[derive(Drop)]
pub struct Serving {
    address: SocketAddr,
    thread: JoinHandle<Vec<Served>>,
}

// Serves the client of a link, and lets the link go then.
fn serve_over<S: Read + Write + OpenStream + Drop>(
    alloc: Global,
    double: &mut Double,
    link: S,
) -> Ended
    requires answers { AnswersClient double.old }
    requires sent { HasSentAll double.old }
    ensures answers { AnswersClient double.new }
    ensures closed { result ≡ Ended.Closed → double.new.closed ≡ true }
    ensures refused { (fault : DoubleFault) → result ≡ Ended.Refused fault → Err fault ≡ result_of double.new.refusal }
{
    let cloned = link.try_clone();
    let Ok(writer) = cloned else {
        drop(link);
        return Ended::Failed;
    };
    let mut reader = Counted::new(link);
    let mut writer = Counted::new(writer);
    let ended = serve(alloc, double, &mut reader, &mut writer);
    drop(writer);
    drop(reader);
    ended
}

/// Serves the client of a link by a double of its own with these numbers, of which the greatest frame is 0, which is no
/// limit, or has at least 4,096 octets. The link is let go then.
pub fn serve_link<S: Read + Write + OpenStream + Drop>(
    alloc: Global,
    numbers: Configuration,
    link: S,
) -> Result<Served, NoMemory>
    requires { (numbers.frame_max ≡ 0) ⊎ (4096 ≤ numbers.frame_max) }
    ensures answers { IfOk result (λ served. AnswersClient served.double) }
    ensures closed { IfOk result (λ served. served.ended ≡ Ended.Closed → served.double.closed ≡ true) }
    ensures refused { IfOk result (λ served. (fault : DoubleFault) → served.ended ≡ Ended.Refused fault
        → Err fault ≡ result_of served.double.refusal) }
{
    let made = Double::new(alloc, numbers);
    let Ok(mut double) = made else {
        drop(link);
        return Err(NoMemory);
    };
    let ended = serve_over(alloc, &mut double, link);
    Ok(Served { ended, double })
}

// Serves so many clients, one after another; fewer where memory was refused.
fn serve_all(
    alloc: Global,
    numbers: Configuration,
    listener: &TcpListener,
    clients: u32,
) -> Vec<Served>
    requires { (numbers.frame_max ≡ 0) ⊎ (4096 ≤ numbers.frame_max) }
{
    let mut all = Vec::new(alloc);
    for _ in 0..clients {
        let Ok((link, _address)) = listener.accept() else {
            return all;
        };
        let Ok(served) = serve_link(alloc, numbers, link) else {
            return all;
        };
        if all.push(served).is_err() {
            return all;
        }
    }
    all
}

impl Serving {
    /// Listens at a port of the loopback that the system chooses, and serves so many clients there, one after another:
    /// each by a double of its own with these numbers, of which the greatest frame is 0, which is no limit, or has at
    /// least 4,096 octets.
    pub fn begin<R>(
        rt: &R,
        alloc: Global,
        numbers: Configuration,
        clients: u32,
    ) -> io::Result<Serving>
    where
        R: Net<Listener = TcpListener, Stream = TcpStream> + Threads,
        requires { (numbers.frame_max ≡ 0) ⊎ (4096 ≤ numbers.frame_max) }
    {
        let listener = rt.bind(SocketAddr::from(([127, 0, 0, 1], 0)))?;
        let address = listener.local_addr()?;
        let thread = thread::spawn(rt, move || serve_all(alloc, numbers, &listener, clients))?;
        Ok(Serving { address, thread })
    }

    /// Where it listens.
    pub fn address(&self) -> SocketAddr
        ensures { result ≡ self.now.address }
    {
        self.address
    }

    /// Waits until all clients were served, and gives them in order; fewer where memory was refused, or listening
    /// failed. It waits as long as no client comes.
    pub fn join<R: Threads>(self, rt: &R) -> Vec<Served> {
        self.thread.join(rt)
    }
}
