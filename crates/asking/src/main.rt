// The asking program: a still on standard input (`transforms` reads none), a question in the arguments, fields parted by tabs
// as the answer, in one line; of `crop` and `points` in several.
#![tactic(auto)]

mod answers;
mod body;
mod crop;
mod points;

use arguments::Word;
use between::Seam;
use std::env::Env;

// The numbers that follow a question's word: an item's ID, and x and y of one pixel and of another. Those that it does not take are 0.
#[derive(Clone, Copy)]
struct Numbers {
    id: u32,
    x: u32,
    y: u32,
    to_x: u32,
    to_y: u32,
}

// A question's word and its numbers. `alone` says that the word came without any.
#[derive(Drop)]
struct Question {
    word: Word,
    alone: bool,
    numbers: Numbers,
}

// The number that argument i spells, or 0 where there are no more than i.
fn number_at(rt: &impl Env, i: usize) -> Option<u32> {
    if input::argument_count(rt) <= i {
        return Some(0);
    }
    let mut text = [0u8; 16];
    let n = input::argument(rt, i, &mut text);
    arguments::number_of(&text[..n])
}

// The numbers behind the word.
fn read_numbers(rt: &impl Env) -> Option<Numbers> {
    Some(Numbers {
        id: number_at(rt, 2)?,
        x: number_at(rt, 3)?,
        y: number_at(rt, 4)?,
        to_x: number_at(rt, 5)?,
        to_y: number_at(rt, 6)?,
    })
}

fn seam_of(n: Numbers) -> Seam {
    Seam {
        x: n.x,
        y: n.y,
        to_x: n.to_x,
        to_y: n.to_y,
    }
}

fn read_word(rt: &impl Env) -> Word {
    let mut text = [0u8; 16];
    let n = input::argument(rt, 1, &mut text);
    arguments::word_of(&text[..n])
}

// Whether so many numbers make a question of a word.
fn is_right(word: Word, numbers: usize) -> bool {
    if numbers == 0 {
        return arguments::may_be_alone(word);
    }
    numbers == arguments::numbers_of(word)
}

// The question that the arguments ask, all of them and no more; nothing where they ask none.
fn read_question(rt: &impl Env) -> Option<Question> {
    let word = read_word(rt);
    if let Word::Unknown = word {
        return None;
    }
    // The program's own name comes first, then the word.
    let count = input::argument_count(rt);
    if count < 2 {
        return None;
    }
    if !is_right(word, count - 2) {
        return None;
    }
    Some(Question {
        word,
        alone: count == 2,
        numbers: read_numbers(rt)?,
    })
}

fn print_answer(q: Question, head: &[u8], total: u64) {
    let mut table = input::new_table();
    let word = q.word;
    let n = q.numbers;
    match word {
        Word::Verdict => answers::print_verdict(head, total, &mut table),
        Word::Why => answers::print_why(head, total, &mut table),
        Word::Size => answers::print_size(head, total, &mut table, n.id),
        Word::Trace => answers::print_trace(head, total, &mut table, n.id, n.x, n.y),
        Word::Sources => answers::print_sources(head, total, &mut table, n.id),
        Word::Property => answers::print_property(head, total, &mut table, n.id, n.x),
        Word::Crop => crop::print_crop(head, total, &mut table, n.id),
        Word::Orientation => {
            if q.alone {
                return answers::print_primary_orientation(head, total, &mut table);
            }
            answers::print_orientation(head, total, &mut table, n.id);
        }
        Word::Transforms => answers::print_transforms(n.id),
        Word::Points => points::print_points(head, total, &mut table, n.id, seam_of(n)),
        Word::Body => body::print_body(head, total, &mut table, n.id),
        Word::Unknown => print_use(),
    }
}

// The script ./ask names a wrong argument before it starts this program.
fn print_use() {
    words::say(
        2,
        b"there is no such question; ./ask --help lists the questions\n",
    );
}

fn ask(rt: &HostRuntime, q: Question) {
    let mut head = io::large_buffer();
    match input::read_input(rt, &mut head) {
        Some(got) => print_answer(q, &head[..got.here], got.total),
        None => input::print_failed(),
    }
}

// A question about a file reads it first.
fn answer(rt: &HostRuntime, q: Question) {
    let word = q.word;
    let n = q.numbers;
    if let Word::Transforms = word {
        return answers::print_transforms(n.id);
    }
    ask(rt, q);
}

fn main(rt: HostRuntime) {
    match read_question(&rt) {
        Some(q) => answer(&rt, q),
        None => print_use(),
    }
}
