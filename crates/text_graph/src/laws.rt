//! The lists of texts that arrows give have exactly the texts that are reached, or that reach a text. Each
//! function does nothing: its clause is the law.
ghost use Rattle.text_graph.specs.Listed.{ReachedAreListed, ReachingAreListed};

/// The list of the texts that are reached over arrows has exactly these, in order.
pub fn reached_are_listed()
    ensures { ReachedAreListed }
{}

/// The list of the texts that reach a text over arrows has exactly these, in order.
pub fn reaching_are_listed()
    ensures { ReachingAreListed }
{}
