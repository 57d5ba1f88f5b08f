// Decimal numerals, the listing of a run and the refusal line: specs/ defines them, and `file_calls` writes them.
