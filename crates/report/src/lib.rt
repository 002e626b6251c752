// The report of a book, as definitions: no code. The calls on a bus that a book makes, what they
// put into the report, and what is still ahead where a book has come so far.
#![tactic(auto)]
