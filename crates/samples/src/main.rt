// Prints what the library makes of the samples that are not proved, and of the published examples.
#![tactic(auto)]

mod examples;
mod print;
mod straight;
mod tables;

fn main() {
    straight::published();
    straight::limits();
    straight::lists();
    examples::header();
    examples::tempos();
    examples::triangle_at_128();
    examples::triangle_at_150();
    examples::triangle_as_printed();
    examples::envelopes();
    examples::loops();
}
