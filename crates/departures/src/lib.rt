// Where reading departs from RFC 7273: rows of texts, each computed by the grammar and by the rules of reading. Definitions and theorems alone.
#![tactic(auto)]
