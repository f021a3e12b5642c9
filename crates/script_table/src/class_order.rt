//! The class order: by files and places, but each class behind its base.
use crate::number::number;
use no_memory::NoMemory;
use std::alloc::{Allocator, Global};

/// The numbers of the listing in the class order, by the base of each class.
pub fn class_order(alloc: Global, bases: &[u32]) -> Result<Vec<u32>, NoMemory> {
    let mut placed = vec![in alloc; false; bases.len()]?;
    let mut order = Vec::new(alloc);
    let mut waiting: Vec<u32> = Vec::new(alloc);
    for place in 0..bases.len() {
        take_line(bases, &mut placed, &mut waiting, place)?;
        for class in waiting.iter().rev() {
            order.push(*class)?;
        }
        waiting.clear();
    }
    Ok(order)
}

// Marks a class and its bases up to one that was placed, and adds their numbers to those that wait to be placed.
fn take_line(
    bases: &[u32],
    placed: &mut [bool],
    waiting: &mut Vec<u32>,
    start: usize,
) -> Result<(), NoMemory> {
    let mut at = start;
    for _ in 0..bases.len() {
        match placed.get_mut(at) {
            Some(mark) if !*mark => *mark = true,
            _ => return Ok(()),
        }
        waiting.push(number(at.saturating_add(1))?)?;
        let base = match bases.get(at) {
            Some(base) => *base as usize,
            None => 0,
        };
        if base == 0 {
            return Ok(());
        }
        at = base - 1;
    }
    Ok(())
}

/// For each class of the listing its number in the class order, from 1.
pub fn order_numbers(alloc: Global, order: &[u32]) -> Result<Vec<u32>, NoMemory> {
    let mut numbers = vec![in alloc; 0u32; order.len()]?;
    for (place, class) in order.iter().enumerate() {
        let at = number(place)?.saturating_add(1);
        if *class > 0 && (*class as usize) <= numbers.len() {
            numbers[*class as usize - 1] = at;
        }
    }
    Ok(numbers)
}
