//! Tests of footprints by worked polygons, where no clause says it.
#![tactic(auto)]

#[cfg(test)]
mod footprints;
