//! Bytes that are read, compared with others.

ghost use Rattle.std.specs.Prelude.{◌≡◌, length, IsTrue, ◌↔◌};
ghost use Rattle.amqp_ring.specs.Contexts.{context_bytes, Compares, IsSameNoCase};

use crate::context::ParsingContext;

/// How bytes that are read compare with others.
#[derive(Clone, Copy, Debug, PartialEq, Eq)]
pub enum CompareResult {
    /// The others stand at their front.
    Ok,
    /// They are the front of the others, and end before them.
    Incomplete,
    /// A byte differs at a place that both have.
    Error,
}

impl ParsingContext<'_> {
    /// Whether these bytes stand at the front, or may once there are more.
    pub fn compare(&self, bytes: &[u8]) -> CompareResult
        ensures { Compares ◌≡◌ (context_bytes self.now) bytes.now result }
    {
        let len = self.input_len();
        let common = bytes.len().min(len);
        if !is_equal(self.take(common), &bytes[..common]) {
            CompareResult::Error
        } else if bytes.len() <= len {
            CompareResult::Ok
        } else {
            CompareResult::Incomplete
        }
    }

    /// The same without regard to the case of ASCII letters.
    pub fn compare_no_case(&self, bytes: &[u8]) -> CompareResult
        ensures { Compares IsSameNoCase (context_bytes self.now) bytes.now result }
    {
        let len = self.input_len();
        let common = bytes.len().min(len);
        if !is_equal_no_case(self.take(common), &bytes[..common]) {
            CompareResult::Error
        } else if bytes.len() <= len {
            CompareResult::Ok
        } else {
            CompareResult::Incomplete
        }
    }
}

// Whether what is read is these bytes, which are as many.
fn is_equal(read: ParsingContext<'_>, bytes: &[u8]) -> bool
    requires { length bytes.now ≡ length (context_bytes read) }
    ensures { IsTrue result ↔ (context_bytes read.entry ≡ bytes.now) }
{
    let (first, second) = bytes.split_at(read.first.len());
    read.first == first && read.second == second
}

// The same without regard to the case of ASCII letters.
fn is_equal_no_case(read: ParsingContext<'_>, bytes: &[u8]) -> bool
    requires { length bytes.now ≡ length (context_bytes read) }
    ensures { IsTrue result ↔ IsSameNoCase (context_bytes read.entry) bytes.now }
{
    let (first, second) = bytes.split_at(read.first.len());
    read.first.eq_ignore_ascii_case(first) && read.second.eq_ignore_ascii_case(second)
}
