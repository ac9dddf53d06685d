//! Which deliveries of a link may be acknowledged.

ghost use Rattle.std.specs.Prelude.{◌≡◌, None, true};
ghost use Rattle.amqp_tools.specs.Tags.{undelivered, may, after_deed};
ghost use Rattle.amqp_tools.specs.declared.tags.Deed.TheVariants.{Printed, PassedOver, Flushed, Lost};

/// What happens to who prints the messages of a queue, over one link after another.
#[derive(Clone, Copy, Debug, PartialEq, Eq)]
pub enum Deed {
    /// The delivery with this tag was given to the sink.
    Printed(u64),
    /// It was not, as a message of its name was.
    Known(u64),
    /// It was not.
    PassedOver(u64),
    /// The sink took all that it was given.
    Flushed,
    /// All deliveries up to this tag were acknowledged.
    Acknowledged(u64),
    /// The link was lost. Tags begin anew.
    Lost,
}

/// How far the deliveries of a link were printed, taken by the sink, and acknowledged.
#[derive(Clone, Copy, Debug, PartialEq, Eq)]
pub struct Tags {
    // the tag of the last delivery
    last: u64,
    // whether one was passed over
    passed: bool,
    // the tag of the last that was printed, or is known, since the sink took all
    printed: Option<u64>,
    // the tag of the last that the sink took and that was not acknowledged
    flushed: Option<u64>,
}

impl Tags {
    /// Nothing was delivered.
    pub fn new() -> Tags
        ensures { result ≡ undelivered }
    {
        Tags {
            last: 0,
            passed: false,
            printed: None,
            flushed: None,
        }
    }

    /// Whether a delivery may have this tag: they are numbered upwards.
    pub fn may_come(&self, tag: u64) -> bool
        ensures { result ≡ may self.now (PassedOver tag) }
    {
        self.last < tag
    }

    /// Whether a delivery was passed over: none behind it may be printed, since what is acknowledged up to a tag is
    /// all that was delivered up to it.
    pub fn has_passed(&self) -> bool
        ensures { result ≡ self.now.passed }
    {
        self.passed
    }

    /// The delivery with this tag is given to the sink, or is known.
    pub fn print(&mut self, tag: u64)
        requires { may self.old (Printed tag) ≡ true }
        ensures { self.new ≡ after_deed self.old (Printed tag) }
    {
        self.last = tag;
        self.printed = Some(tag);
    }

    /// It is not.
    pub fn pass_over(&mut self, tag: u64)
        requires { may self.old (PassedOver tag) ≡ true }
        ensures { self.new ≡ after_deed self.old (PassedOver tag) }
    {
        self.last = tag;
        self.passed = true;
    }

    /// The sink took all that it was given.
    pub fn flush(&mut self)
        ensures { self.new ≡ after_deed self.old Flushed }
    {
        if let Some(tag) = self.printed {
            self.flushed = Some(tag);
            self.printed = None;
        }
    }

    /// The tag up to which all is to be acknowledged now, where there is something.
    pub fn acknowledge(&mut self) -> Option<u64>
        ensures tag { result ≡ self.old.flushed }
        ensures new { self.new ≡ record self.old { flushed = None } }
    {
        self.flushed.take()
    }

    /// The link was lost.
    pub fn lose(&mut self)
        ensures { self.new ≡ after_deed self.old Lost }
    {
        *self = Tags::new();
    }
}
