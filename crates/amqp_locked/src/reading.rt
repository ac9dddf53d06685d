//! How the frames of a link come.
//!
//! It tells frames that came whole from pieces that ended amid one, so that who waits for a long body is not woken at
//! each piece of it. What is said here is a matter of cost alone: the session reads the same octets by itself.

// The kind of a heartbeat.
const HEARTBEAT: u8 = 8;

// How many octets stand before the payload of a frame: its kind, its channel, and how long it is.
const HEADER: u8 = 7;

/// How far the next frame of a link came.
#[derive(Clone, Copy, Debug)]
pub(crate) struct Reading {
    // how many octets of its header, and what they say
    header: u8,
    kind: u8,
    channel: u16,
    payload: u32,
    // how many octets are still to come behind the header, with that of the frame's end
    left: u64,
}

impl Reading {
    /// A link of which nothing came.
    pub(crate) fn new() -> Reading {
        Reading {
            header: 0,
            kind: 0,
            channel: 0,
            payload: 0,
            left: 0,
        }
    }

    /// Another link, of which nothing came.
    pub(crate) fn begin(&mut self) {
        *self = Reading::new();
    }

    /// How many frames these octets make whole, without heartbeats, and how many of them came on channels.
    pub(crate) fn read(&mut self, octets: &[u8]) -> (u64, u64) {
        let mut frames = 0u64;
        let mut handed = 0u64;
        let mut at = 0;
        'octets: for _ in 0..octets.len() {
            if at >= octets.len() {
                break;
            }
            at = self.go_on(&octets[at..]).saturating_add(at);
            if self.is_whole() {
                if self.kind != HEARTBEAT {
                    frames = frames.saturating_add(1);
                    handed = handed.saturating_add(self.on_a_channel());
                }
                self.begin();
            }
        }
        (frames, handed)
    }

    // Reads on at the front of some octets, and gives how many of them were read.
    fn go_on(&mut self, octets: &[u8]) -> usize {
        if self.header < HEADER {
            if let Some(octet) = octets.first() {
                self.read_header(*octet);
            }
            return 1;
        }
        let count = (octets.len() as u64).min(self.left);
        self.left = self.left.saturating_sub(count);
        count as usize
    }

    // Reads the next octet of the header.
    fn read_header(&mut self, octet: u8) {
        match self.header {
            0 => self.kind = octet,
            1 | 2 => self.channel = (self.channel << 8) | octet as u16,
            _ => self.payload = (self.payload << 8) | octet as u32,
        }
        self.header = self.header.saturating_add(1);
        if self.header == HEADER {
            self.left = (self.payload as u64).saturating_add(1);
        }
    }

    // Whether the last octet of the frame came.
    fn is_whole(&self) -> bool {
        self.header == HEADER && self.left == 0
    }

    // 1 where it came on a channel, and 0 on the connection.
    fn on_a_channel(&self) -> u64 {
        if self.channel == 0 { 0 } else { 1 }
    }
}
