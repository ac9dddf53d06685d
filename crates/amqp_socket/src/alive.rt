//! Signs of life on a link on which nobody says anything.

use libc::net as c;
use mio::net::TcpStream;
use std::os::fd::AsRawFd;

/// After how many seconds without an octet the system asks the other end whether it is there, how many seconds
/// go by between two questions, and how many it leaves without an answer before the link has failed.
const IDLE: i32 = 60;

const INTERVAL: i32 = 10;

const QUESTIONS: i32 = 6;

// The value of an option, as the system reads it.
fn value(n: i32) -> [u8; 16] {
    let mut value = [0; 16];
    value[..4].copy_from_slice(&n.to_ne_bytes());
    value
}

/// The system asks the other end of a link now and then whether it is there (keepalive of TCP). Where it can't, a
/// dead end is found by heartbeats alone.
pub(crate) fn keep_alive(stream: &TcpStream) {
    let fd = stream.as_raw_fd();
    let _asks = unsafe { c::setsockopt(fd, c::SOL_SOCKET, c::SO_KEEPALIVE, &value(1), 4) };
    let _idle = unsafe { c::setsockopt(fd, c::IPPROTO_TCP, c::TCP_KEEPIDLE, &value(IDLE), 4) };
    let _interval = unsafe {
        c::setsockopt(fd, c::IPPROTO_TCP, c::TCP_KEEPINTVL, &value(INTERVAL), 4)
    };
    let _questions = unsafe {
        c::setsockopt(fd, c::IPPROTO_TCP, c::TCP_KEEPCNT, &value(QUESTIONS), 4)
    };
}
