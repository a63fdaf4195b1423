// Laws of orders and loops: each function is empty, and its clauses are the law.
ghost use Rattle.std.specs.Prelude.{◌≡◌, ◌↔◌, ℕ, List, ◌<◌, ◌++◌, length};
ghost use Rattle.cs_order.specs.Graphs.{Graph, IsOrder, IsLoop, DependsOn, place_in};

/// A graph with an order has no loop.
pub fn no_loop_in_order()
    ensures { (g : Graph) (order vs : List ℕ) → IsOrder g order → ¬ (IsLoop g vs) }
{}

/// The places in an order: each vertex comes after those that it depends on, just the vertices have
/// places, and there are as many places as vertices.
pub fn places_in_order()
    ensures after { (g : Graph) (order : List ℕ) (v w : ℕ) → IsOrder g order → DependsOn g v w
        → place_in order w < place_in order v }
    ensures vertices { (g : Graph) (order : List ℕ) (v : ℕ) → IsOrder g order
        → (0 < place_in order v) ↔ (v < length g) }
    ensures count { (g : Graph) (order : List ℕ) → IsOrder g order → length order ≡ length g }
{}

/// A loop may begin at any of its vertices.
pub fn loop_from_any()
    ensures { (g : Graph) (xs ys : List ℕ) → IsLoop g (xs ++ ys) → IsLoop g (ys ++ xs) }
{}
