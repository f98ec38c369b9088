//! Tests of reduction and conversion, and of both ways of reduction against each other.

mod comparison;
mod conversion;
mod edges;
mod terms;
