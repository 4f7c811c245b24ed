// What the calls that make a stack promise of it. Two traits: the first asks a taking stream and keeps its
// parts, the second asks any stream and drops what takes. One trait would need that difference as a ghost
// member of each of its users, which reads no plainer than the two clauses in which they differ.

ghost use Rattle.std.specs.Prelude.{◌≡◌};
ghost use Rattle.stacks.specs.Still.{still};

use crate::stack::Stack;
use streams::stream::Stream;
use streams::taking::TakingStream;

// A stack over a taking stream: that stream, as it is.
pub trait TakingOver<S: TakingStream>: Stack + Sized {
    fn over(stream: S) -> Self
        ensures parts { Self.Stream.parts result ≡ S.Stream.parts stream }
        ensures nodes { Self.Stream.nodes result ≡ S.Stream.nodes stream }
        ensures bare { Self.Stream.bare result ≡ S.Stream.bare stream };
}

// A stack that only answers: the three parts of a stream.
pub trait AskedOver<S: Stream>: Stack + Sized {
    fn over(stream: S) -> Self
        ensures parts { Self.Stream.parts result ≡ still (S.Stream.parts stream) }
        ensures nodes { Self.Stream.nodes result ≡ S.Stream.nodes stream }
        ensures bare { Self.Stream.bare result ≡ still (S.Stream.bare stream) };
}
