// What follows from the definitions of the crate plate, for the engine's proofs to cite. All of it is in
// proofs/; there is no code. From the bottom up, which file shows what:
//
//   Steps, Moves       a step by columns and rows, in signed numbers and then in natural ones
//   Walks, Cutting     paths as walks over any steps; a walk through a pixel is two walks that meet there
//   Listed             the listed paths are the walks that start on the plate
//   Reversal           a path walked backwards is a path of the negated steps
//   Shorter            a path of L pixels through a pixel contains one of K ≤ L through it
//   Ranks, Span        the span law: a path of length L crosses a pixel exactly if the span is at least L
//   Sides              walking on and walking back, as one
//   Highest            the downward search finds the highest level that passes
//   Admission          which paths count at a level, with both values of `ends`
//   Opening            the opened level is attained and is the highest; it is not above the plate; it is
//                      monotone in the plate
//   Idempotent         opening twice is opening once
//   Mirror             all these carry over to mode 1, by one lemma on the mirror (filtered-as-mode)
//   Longer             a longer length keeps no more, where ends may be gaps
//   SievingTwice       filtering by two lengths is one filtering by the larger
//   Between            a plate between two others filters to something between what these filter to
//   Maxima, LevelSets  the level-set lemma: the recursion over keys finds just the walks that are there
//   Splitting          the splitting lemma: a walk through a pixel by its two halves, whose counts add up
//   Decomposition      the decomposition: the best pair of halves is the opened level
//   Terms              the same term by term, in any order
//   Recorded           a path as it stands in a buffer
//   Trace              demand 3 follows from a counted path at the filtered level
//   WalksTo            walks that may end at some pixels only: bounds, one step on, and turned round
//   Towards            the best walks from one pixel, by a recursion that looks back from where they end
//   WorkedPlates       the worked plates of documents 01 and 02 hold of the definitions
#![tactic(auto)]
