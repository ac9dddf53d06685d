//! What messages are told from others by.

ghost use Rattle.std.specs.Prelude.{◌≡◌, ◌==◌, ◌<◌, IfSome, length, position};
ghost use Rattle.amqp_tools.specs.Taking.{body_mark, has_mark, without_mark};

/// A message that was printed, by what tells it from others: a number made of its octets.
pub type Mark = u64;

/// A number made of octets, which differs where they do but for chance.
pub fn mark_of(octets: &[u8]) -> Mark
    ensures { result ≡ body_mark octets.now }
{
    let mut mark: u64 = 14_695_981_039_346_656_037;
    'each: for octet in octets {
        mark = mark
            .wrapping_mul(1_099_511_628_211)
            .wrapping_add(*octet as u64);
    }
    mark
}

// The place of the first such mark.
fn place_of(marks: &[Mark], mark: Mark) -> Option<usize>
    ensures at { result ≡ position (λ m. m == mark) marks.now }
    ensures within { IfSome result (λ at. at < length marks.now) }
{
    marks.iter().position(|m| *m == mark)
}

/// Takes the first such mark out, where it is there.
pub fn take_out(marks: &mut Vec<Mark>, mark: Mark) -> bool
    ensures found { result ≡ has_mark mark marks.old.items }
    ensures left { marks.new.items ≡ without_mark mark marks.old.items }
{
    match place_of(marks, mark) {
        Some(place) => {
            let _taken = marks.remove(place);
            true
        }
        None => false,
    }
}
