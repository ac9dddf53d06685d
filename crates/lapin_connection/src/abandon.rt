//! Connections that nobody waits for any more.

ghost use Rattle.std.specs.Prelude.{◌≡◌};
ghost use Rattle.std.specs.Arc.{arc_value};
ghost use Rattle.lapin_connection.specs.Shown.{is_watched};

use crate::connection::Connection;

impl Connection {
    /// Gives the connection up at once, in whatever state it is, and says whether its port can be told that. The
    /// port then fails the link that there is and each one that is asked for, with no delay between, so the
    /// session ends, and all that waits for it is told how. Nothing is closed in order: what was published and is
    /// not sent is lost, and the server finds the link gone.
    pub fn abandon(&self) -> bool
        ensures { result ≡ is_watched (arc_value self.now.shared).nudge }
    {
        self.shared.nudge.abandon()
    }
}
