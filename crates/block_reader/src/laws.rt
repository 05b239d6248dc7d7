//! The laws of reading, each the contract of a function that does nothing.
ghost use Rattle.block_reader.specs.ReaderLaws.{EntriesTellBlock, ReadsOneWay};

/// What a block says tells which it is: no two blocks of a model that have all their labels have the same entries.
#[tactic(auto, using(crate::proofs::OneReading::one_block))]
pub fn entries_tell_the_block()
    ensures { EntriesTellBlock }
{}

/// Lines are read in one way: they state one block and no other, or they are refused by one code at one line.
pub fn lines_are_read_one_way()
    ensures { ReadsOneWay }
{}
