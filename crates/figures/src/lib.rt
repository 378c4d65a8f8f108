// The checked figures of document 01 that are proved of the definitions: a table of rows and one theorem over it.
#![tactic(auto)]
