// The text of a table, for people to edit, by definition: a line with the edition's number, then one row a line in card order; and the words of it.
// No function stands here: `put_table` writes the text, and `take_lines` reads it back; `table_words` knows the words.
// Every table has a text, one that is not well formed too.
#![tactic(auto)]
