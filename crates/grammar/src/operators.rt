// The operators that stand between two expressions.

#[derive(Clone, Copy, PartialEq, Eq, Debug)]
pub enum Operator {
    Plus,
    Minus,
    Times,
    Quotient,
    Rest,
    Less,
    Same,
}

// Which operators a chain of operands has between them: those of a sum, or those of a product, which bind closer.
#[derive(Clone, Copy, PartialEq, Eq, Debug)]
pub enum Level {
    Sum,
    Product,
}
