//! Tests of zones from outside the crates: lines and their faults, tables, the database of zones, POSIX strings, files of compiled
//! zones, the plain form, the short callers of the library, and whole runs of each program over objects in memory.
#![tactic(auto)]

#[cfg(test)]
mod agreement;
#[cfg(test)]
mod callers;
#[cfg(test)]
mod calls;
#[cfg(test)]
mod checks;
#[cfg(test)]
mod database;
#[cfg(test)]
mod files;
#[cfg(test)]
mod fixtures;
#[cfg(test)]
mod footers;
#[cfg(test)]
mod hostile;
#[cfg(test)]
mod lines;
#[cfg(test)]
mod long_runs;
#[cfg(test)]
mod objects;
#[cfg(test)]
mod opened;
#[cfg(test)]
mod outside;
#[cfg(test)]
mod people;
#[cfg(test)]
mod plain;
#[cfg(test)]
mod posix;
#[cfg(test)]
mod rows;
#[cfg(test)]
mod runs;
#[cfg(test)]
mod surely;
