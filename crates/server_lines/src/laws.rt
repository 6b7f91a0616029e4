//! What holds of all lines. No function here does anything: each stands for its clauses.

ghost use Rattle.std.specs.Prelude.{◌≡◌, ◌↔◌, ℕ, List, Some};
ghost use Rattle.server_lines.specs.declared.orders.Order.{Order};
ghost use Rattle.server_lines.specs.Lines.{MeansOrder, SpellsOrder};
ghost use Rattle.server_lines.specs.Reading.{order_of};

/// Law: a line means at most one order.
pub fn one_order_a_line()
    ensures one { (line : List ℕ) (order other : Order) → MeansOrder line order → MeansOrder line other → order ≡ other }
{}

/// Law: words are read as an order exactly where they are those of the order in the table of lines.
pub fn reading_is_spelling()
    ensures exactly { (words : List (List ℕ)) (order : Order) → (order_of words ≡ Some order ↔ SpellsOrder words order) }
{}
