//! What the lines of a map's witness are, as relations on texts; and that what they say is the
//! value of the text, or that the first of them that stops is its first fault. No code.
#![tactic(auto)]
