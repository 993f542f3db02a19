//! Tests over the public calls of the commands, of what no command prints: words that are no command, files that fail
//! in mid-stream, outputs that fail, and how often `sim` writes. What commands answer the rows in `tests/` tell of the
//! program.
mod failing;
mod many_lines;
mod narrow_outputs;
mod refusals;
mod surface;
mod words;
