// Tests of the disks and logs, in a crate of their own since a crate with tests is proved twice.
#![tactic(auto)]

#[cfg(test)]
mod disks;
#[cfg(test)]
mod installs;
#[cfg(test)]
mod list_logs;
#[cfg(test)]
mod logs;
