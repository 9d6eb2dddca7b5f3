//! Fractions against another implementation, and whole in a small type; products of vectors; calls
//! that take memory; the outside as std gives it; texts that are read and printed.
mod fractions;
mod lists;
mod outside;
mod pairs;
mod products;
mod rows;
mod texts;
