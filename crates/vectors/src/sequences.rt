// Lists, and what has no number.
use ac_types::Sequence;
use path_map::PathError;
use scripts::{Page, Unread};
use tree_digest::ListingError;

fn numbers_of(page: &mut Page, words: &[String]) -> Sequence<u32> {
    let mut numbers = Vec::new(page.alloc());
    for word in words {
        let number = page.read(word.parse::<u32>(), Unread::Number);
        page.push(&mut numbers, number.unwrap_or(0));
    }
    Sequence::from_vec(numbers)
}

fn print_numbers(page: &mut Page, numbers: &Sequence<u32>) {
    page.tell(&numbers.len());
    page.put(if numbers.is_empty() { " none" } else { ":" });
    for number in numbers.as_slice() {
        page.put(" ");
        page.tell(number);
    }
}

/// `numbers NUMBER ..`: a copy of the list of them, and whether it is equal.
pub fn numbers_answer(page: &mut Page, words: &[String]) {
    let numbers = numbers_of(page, words);
    let Some(copy) = page.made(numbers.copy()) else {
        return;
    };
    if copy != numbers {
        page.unread(Unread::Text);
    }
    print_numbers(page, &copy);
}

fn number_text(number: Option<u8>) -> &'static str {
    if number.is_none() { "none" } else { "one" }
}

/// `numbers-of-no-memory`: whether want of memory has a number among paths and listings.
pub fn no_memory_answer(page: &mut Page) {
    page.put("of a path ");
    page.put(number_text(PathError::NoMemory.number()));
    page.put(", of a listing ");
    page.put(number_text(ListingError::NoMemory.number()));
}
