// What a call answers: reasons and their numbers, checks tried in order, places.
pub mod checks;
pub mod places;
pub mod reason;
