//! The laws of places and of words are called.

use dq_ticks::{
    greater_words_win, places_are_stable, soonest_slots_come_first, starts_have_digits,
    words_are_ordered,
};

// promise: ticks.slot-starts
#[test]
fn laws_of_places_are_called() {
    starts_have_digits();
    places_are_stable();
    soonest_slots_come_first();
}

// promise: ticks.back-other
#[test]
fn laws_of_words_are_called() {
    words_are_ordered();
    greater_words_win();
}
