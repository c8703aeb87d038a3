use crate::call::{Call, Creation};
use crate::reason::Reason;
use shm_allocator::AllocationStrategy;
use shm_allocator::layout::Layout;
use std::alloc::{AllocError, Global};
use std::num::ParseIntError;

// Why words were not read as a call.
#[derive(Clone, Copy, Debug)]
pub enum ReadError {
    NoCall,
    OutOfMemory(AllocError),
}

impl From<ParseIntError> for ReadError {
    fn from(_error: ParseIntError) -> ReadError {
        ReadError::NoCall
    }
}

impl From<AllocError> for ReadError {
    fn from(error: AllocError) -> ReadError {
        ReadError::OutOfMemory(error)
    }
}

// A call in words, and the crate's answer to it.
#[derive(Clone, Copy)]
struct Words<'a> {
    call: &'a [&'a str],
    answer: &'a [&'a str],
}

pub fn read_call(heap: Global, line: &str) -> Result<Call, ReadError> {
    let (call, answer) = line.split_once(" = ").ok_or(ReadError::NoCall)?;
    let call: Vec<&str> = call.split_whitespace().collect(heap)?;
    let answer: Vec<&str> = answer.split_whitespace().collect(heap)?;
    let words = Words {
        call: call.as_slice(),
        answer: answer.as_slice(),
    };
    words.read(heap)
}

impl Words<'_> {
    fn read(self, heap: Global) -> Result<Call, ReadError> {
        match (self.call, self.answer) {
            (["create", asked @ ..], [way, told]) => {
                let recorded = read_recorded("ok", way, told)?;
                read_creation(asked, recorded).map(Call::Create)
            }
            // How many segments are active after a call is not compared yet.
            (["a", size, align], [way, told, active, made @ ..]) if is_number(active) => {
                Ok(Call::Allocate {
                    layout: read_layout(size, align)?,
                    made: read_made(heap, made)?,
                    recorded: read_recorded("v", way, told)?,
                })
            }
            (["f", chunk], ["ok", active]) if is_number(active) => Ok(Call::Return {
                chunk: chunk.parse()?,
            }),
            (["b", chunk], ["n", size]) => Ok(Call::BucketSize {
                chunk: chunk.parse()?,
                recorded: size.parse()?,
            }),
            (["end"], ["ok"]) => Ok(Call::End),
            (["o"], ["ok"]) => Ok(Call::OpenViewer),
            (["o"], ["d", reason]) if is_number(reason) => Ok(Call::OpenViewer),
            _ if self.is_view() => Ok(Call::View),
            _ => Err(ReadError::NoCall),
        }
    }

    // A call of a viewer that was opened, with an answer that it may have.
    fn is_view(self) -> bool {
        match (self.call, self.answer) {
            (["r", asked @ ..], ["ok", told @ ..]) => are_numbers(asked, 2) && are_numbers(told, 1),
            (["r", asked @ ..], ["d", told @ ..]) => are_numbers(asked, 2) && are_numbers(told, 2),
            (["u", asked @ ..], ["ok", told @ ..]) => are_numbers(asked, 2) && are_numbers(told, 1),
            (["c", asked @ ..], ["ok"]) => are_numbers(asked, 1),
            _ => false,
        }
    }
}

fn read_creation(words: &[&str], recorded: Result<u64, Reason>) -> Result<Creation, ReadError> {
    match words {
        [kind, strategy, size, align, chunks, store @ ..] if is_store(store) => Ok(Creation {
            kind: kind.parse()?,
            strategy: read_strategy(strategy)?,
            layout: read_layout(size, align)?,
            chunks: chunks.parse()?,
            recorded,
        }),
        _ => Err(ReadError::NoCall),
    }
}

// A function: neither the type nor `FromStr` is of this crate.
fn read_strategy(word: &str) -> Result<AllocationStrategy, ReadError> {
    match word {
        "static" => Ok(AllocationStrategy::Static),
        "best" => Ok(AllocationStrategy::BestFit),
        "power" => Ok(AllocationStrategy::PowerOfTwo),
        _ => Err(ReadError::NoCall),
    }
}

fn read_layout(size: &str, align: &str) -> Result<Layout, ReadError> {
    Ok(Layout {
        size: size.parse()?,
        align: align.parse()?,
    })
}

// What was given, behind the word `given`, or why it was denied.
fn read_recorded(given: &str, way: &str, told: &str) -> Result<Result<u64, Reason>, ReadError> {
    match way {
        "d" => Ok(Err(told.parse()?)),
        _ if way == given => Ok(Ok(told.parse()?)),
        _ => Err(ReadError::NoCall),
    }
}

fn read_made(heap: Global, words: &[&str]) -> Result<Vec<u64>, ReadError> {
    words
        .iter()
        .map(|word| read_payload(word))
        .try_collect(heap)
}

fn read_payload(word: &str) -> Result<u64, ReadError> {
    let payload = word.strip_prefix('+').ok_or(ReadError::NoCall)?;
    Ok(payload.parse()?)
}

fn is_store(words: &[&str]) -> bool {
    match words {
        ["frames", numbers @ ..] => are_numbers(numbers, 2),
        ["span", numbers @ ..] => are_numbers(numbers, 1),
        _ => false,
    }
}

// So many numbers, and nothing else.
fn are_numbers(words: &[&str], count: usize) -> bool {
    words.len() == count && words.iter().all(|word| is_number(word))
}

fn is_number(word: &str) -> bool {
    word.parse::<u64>().is_ok()
}
