//! Laws of tables, each as the contract of a call that does nothing.

ghost use Rattle.amqp_types.specs.Laws.{LastOfEqualNamesCounts, LastPairCounts, NamesStandOnce, PutSetsOneName};

/// In the map of any pairs, which is what a table is made of, each name has the value of its last
/// pair.
pub fn last_of_equal_names_counts()
    ensures { LastOfEqualNamesCounts }
{}

/// A table that is read from any of its spellings has the value of each name's last pair.
pub fn last_pair_counts()
    ensures { LastPairCounts }
{}

/// The map of any pairs holds each name once, in byte order.
pub fn names_stand_once()
    ensures { NamesStandOnce }
{}

/// Setting the value of a name changes what that name has, and what no other has.
pub fn put_sets_one_name()
    ensures { PutSetsOneName }
{}
