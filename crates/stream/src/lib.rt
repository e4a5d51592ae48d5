// Machines over bytes that come in parts: what they are (specs/Stream.antt), and that to feed the
// parts one after the other is to feed the whole (proofs/Stream.antt). Nothing here knows of
// records, and there is no code: the crates journal_reader and journal are such machines.
#![tactic(auto)]
