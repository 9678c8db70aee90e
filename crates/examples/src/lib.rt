// No code: the starred lines of document 01's "At the table", as theorems about the definitions (specs/Table.antt).
#![tactic(auto)]
