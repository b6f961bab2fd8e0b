// The tests of each sort of card and of the layers, and what they share: families with two cards in them,
// tables to hold any family to, and numbers drawn at random.
mod both_ways;
mod fee;
mod hopper;
mod layer;
mod made;
mod random;
mod tables;
mod turned;
mod van;
