//! The laws of blocks, each the contract of a function that does nothing.
ghost use Rattle.certificate_text.specs.BlockLaws.{BlockIsSmall, BlockReadsBack};

/// The block of a certified plan that was written is read back, wherever it stands in an input: its numbers, the people out by each period,
/// its labels as they are shown, which certify the plan, and its moves.
#[tactic(auto, using(crate::proofs::AnswerBack::reads_back))]
pub fn block_reads_back()
    ensures { BlockReadsBack }
{}

/// The block of a certified plan has 40,000,000 bytes at most, so that a reader takes it after a model of a fifth of an input.
#[tactic(auto, using(crate::proofs::BlockSize::answer_size))]
pub fn block_is_small()
    ensures { BlockIsSmall }
{}
