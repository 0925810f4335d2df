// Tests of frames, answers and lines, in a crate of their own since a crate with tests is proved twice.
#![tactic(auto)]

#[cfg(test)]
mod answers;
#[cfg(test)]
mod buffers;
#[cfg(test)]
mod calls_written;
#[cfg(test)]
mod inputs;
#[cfg(test)]
mod refusals;
