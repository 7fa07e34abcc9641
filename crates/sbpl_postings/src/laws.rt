//! What the rule of the queue says of a worker that has not ended.

ghost use Rattle.std.specs.Prelude.{◌≡◌, ℕ, List, ◌++◌};
ghost use Rattle.sbpl_postings.specs.Drained.{Drained};
ghost use Rattle.sbpl_postings.specs.Kept.{IsDrain, IsKept, IsSender};
ghost use Rattle.sbpl_postings.specs.Posts.{of};
ghost use Rattle.sbpl_postings.specs.declared.known.Known.{Known};
ghost use Rattle.sbpl_postings.specs.declared.post.Post.{Post};
ghost use Rattle.sbpl_postings.specs.declared.post.Sent.{Sent};

/// At every moment what came out for a seat is the beginning of what its worker put in, and the rest is what the queue holds of
/// it, in order. This is a law: it does nothing.
pub fn lines_keep_order()
    ensures order { (items : List Post) (views : List Known) (place at : ℕ) (now : Drained) (sent : Sent) → IsKept items views
        → IsDrain views place now → IsSender views at sent → of sent.seat now.came ++ of sent.seat items ≡ sent.posts }
{}
