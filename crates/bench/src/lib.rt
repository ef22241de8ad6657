// Document 01's starred bench examples 1 to 12, as one statement over one list; specs/Examples.antt has the list. No code.
#![tactic(auto)]
