//! What is known of printed texts.
ghost use Rattle.cd_text.specs.Feeds.{PrintedWordsHaveNoFeed, PrintedLabelsHaveNoFeed, PrintedClausesHaveNoFeed, PrintedLinesHaveNoFeed};

/// No line feed stands in what is shown, quoted or printed as a word, whatever the text.
pub fn printed_words_have_no_feed()
    ensures { PrintedWordsHaveNoFeed }
{}

/// No line feed stands in a printed label that is digits where it is an integer.
pub fn printed_labels_have_no_feed()
    ensures { PrintedLabelsHaveNoFeed }
{}

/// No line feed stands in a printed clause.
pub fn printed_clauses_have_no_feed()
    ensures { PrintedClausesHaveNoFeed }
{}

/// No line feed stands in a printed derivation line whose label is digits where it is an integer.
pub fn printed_lines_have_no_feed()
    ensures { PrintedLinesHaveNoFeed }
{}
