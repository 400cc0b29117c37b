//! The program's top call, over any source and sinks: it reads a script, runs it and prints the report; reads a dump
//! and shows it; makes a script; or shows what becomes of one.
#![tactic(auto)]

mod demo;
mod fault;
mod make;
mod output;
mod run;
mod show;
mod top;

pub use top::ndc_top;
