//! Tests over the calls of `script_text`, `byte_ends`, `crew` and `command_line`. No items of its own.
#![tactic(auto)]

#[cfg(test)]
mod gates;
#[cfg(test)]
mod memory_ends;
#[cfg(test)]
mod parsing;
#[cfg(test)]
mod std_reader;
#[cfg(test)]
mod std_writer;
#[cfg(test)]
mod tasks;
#[cfg(test)]
mod traces;
#[cfg(test)]
mod words;
